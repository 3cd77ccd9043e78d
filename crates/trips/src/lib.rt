// Laws only: reading and writing undo each other, for messages, records and packets. No code runs from here.
#![tactic(auto)]
