// What the program writes, proved for jobs given as bytes: specs/Samples.antt.
#![tactic(auto)]
