// Laws only: ascending lists without repeats, which ladders and queues are made of. No code runs from here.
#![tactic(auto)]
