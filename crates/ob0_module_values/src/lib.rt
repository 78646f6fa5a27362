//! Contains only proofs: for each text that is a module, there are a parsed module (`ParsedModule`)
//! and a resolved module (`Resolution`). So each law about all resolved modules holds for each text
//! that is a module.
#![tactic(auto)]
