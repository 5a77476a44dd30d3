// The demands over all public calls and any run of them: definitions and theorems over the definitions that the
// contracts cite. It has no code of its own.
#![tactic(auto)]
