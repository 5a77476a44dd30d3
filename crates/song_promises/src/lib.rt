// A song that is played is a run of calls: what the demands say of runs, they say of songs. Definitions and theorems
// over the definitions that the contracts cite. It has no code of its own.
#![tactic(auto)]
