// Laws only: reading the line that a record is written as gives the record back; a line that is read as a record says it, field by field. No code runs from here.
#![tactic(auto)]
