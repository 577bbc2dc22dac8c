// Gas, then bytes, as the cost of the bounded search: specs/GasBytes.antt. No code.
#![tactic(auto)]
