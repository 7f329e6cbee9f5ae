// The starred rows of document 01's "Papers from the course" and those of later changes, as one claim about the definitions of the search,
// of the position list file and of the marking: specs/Papers.antt states it and proofs/Papers.antt proves it. There is no code here.
#![tactic(auto)]
