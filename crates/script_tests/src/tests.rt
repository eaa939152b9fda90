//! Scripts that are read, and scripts that are refused.

mod scripts;
mod wrong_scripts;
