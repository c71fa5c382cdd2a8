// What is added to a Hessian and a gradient, as lists of terms: definitions and laws alone.
#![tactic(auto)]
