// No code: what demand 3 says of the calls as they ran, from their promises alone, stands in specs/.

#![tactic(auto)]
