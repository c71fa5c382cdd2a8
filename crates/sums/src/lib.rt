// Sums of products in rising index and matrices by columns: definitions, and their laws over the length. No functions.
#![tactic(auto)]
