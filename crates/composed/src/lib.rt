// Laws only: a recording that is written packet by packet has those packets when it is read, and one of good packets that was read is written as it was. No code runs from here.
#![tactic(auto)]
