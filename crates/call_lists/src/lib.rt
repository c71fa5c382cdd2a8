// Many calls on one Hessian: what each answers, and what each cell holds after a list of calls. Definitions and laws alone.
#![tactic(auto)]
