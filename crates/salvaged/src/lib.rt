//! What a salvage promises of a file, damaged or not. No code.

#![tactic(auto)]
