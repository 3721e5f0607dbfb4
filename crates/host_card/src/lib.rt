// Host and card joined by a cable. What they come to is in specs/, and no code is here.
#![tactic(auto)]
