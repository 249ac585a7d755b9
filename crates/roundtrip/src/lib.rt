//! No code: what reader and writer of a tour promise of each other.

#![tactic(auto)]
