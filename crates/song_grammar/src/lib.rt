// What a good Standard MIDI File is, as a grammar from the document, and that the reader of `smf` takes these files and
// no others. Theorems over the definitions of `smf`, which it opens, as it is to check them. It has no code of its own.
#![tactic(auto)]
