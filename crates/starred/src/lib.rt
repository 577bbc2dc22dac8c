// The questions that document 01 marks with a star: the table and its theorem stand in specs/Starred.antt. No code.
#![tactic(auto)]
