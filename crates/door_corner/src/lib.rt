// The cases of document 01's "Door corner" that are marked *: definitions and one theorem, in specs/. There is no code.
#![tactic(auto)]
