// The second engine (request 9/12) over a host's calls: it leaves what the first leaves, whatever is lent beside the
// record, and has exactly the voices that the request says. Definitions and theorems over the definitions that the
// contracts cite. It has no code of its own.
#![tactic(auto)]
