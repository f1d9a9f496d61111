// The language of scripts is a definition: it stands in specs/, with its laws in proofs/. There is no code.

#![tactic(auto)]
