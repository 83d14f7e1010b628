// Document 01's rules for pages, nodes and trees, as definitions in specs/, with their laws. There is no code here: the crates
// above promise equality with these definitions.

#![tactic(auto)]
