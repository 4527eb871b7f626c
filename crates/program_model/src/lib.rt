//! The program that units say, over the texts of names (ISO/IEC 13211-2, 6.1 and 6.2).
#![tactic(auto)]
