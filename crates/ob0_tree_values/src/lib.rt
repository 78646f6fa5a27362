//! Proves that the code has a syntax tree for each `Tree` of the definitions. The `Tree` must have
//! token indexes as leaves and spell at most 1,048,576 tokens.
#![tactic(auto)]
