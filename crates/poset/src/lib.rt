//! Definitions and theorems alone: see specs/ and proofs/Theorems.antt.

#![tactic(auto)]
