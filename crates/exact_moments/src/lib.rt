// Exact moments of points with whole coordinates, as on a millimetre grid: definitions and theorems over every way to cut points into sets and to merge the sets. No functions.
#![tactic(auto)]
