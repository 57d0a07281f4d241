// The samples of document 01 that are proved. They stand in specs/Samples.antt; no code is needed for them.
#![tactic(auto)]
