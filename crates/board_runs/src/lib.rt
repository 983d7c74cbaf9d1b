// What is claimed of the tile as it runs, over whole lists of calls: specs/Promises.antt. There is no code here.
#![tactic(auto)]
