// Many calls of both factors on one Hessian and one gradient: the book, what a call owns, and demand 3. Definitions and laws alone.
#![tactic(auto)]
