// What a history of calls promises, over the rules. There is no code here: specs/Statement.antt says it, the others prove it.

#![tactic(auto)]
