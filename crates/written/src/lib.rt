// What a field's blocks are: definitions and laws only, over any edition. There is no function here.
#![tactic(auto)]
