// What becomes of the voices of one channel over any events: each sounds on time, none leaves unfinished, and a
// finished one goes. Definitions and theorems over the definitions that the contracts cite. It has no code of its own.
#![tactic(auto)]
