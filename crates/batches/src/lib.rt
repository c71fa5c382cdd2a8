// The numbers of several things side by side in one array: definitions, and their laws over how many things and numbers there are. No functions.
#![tactic(auto)]
