// Theorems over the definitions: nothing here runs.
//
// proofs/Run.antt: a run keeps every value in its width: the state's signed fields and every coordinate words of 32 bits, the loop counter below 2 ^ 32, references
// below 2 ^ 64, flags below 256. proofs/Steps.antt, Setters.antt and Contours.antt say it of the steps that lines are made of, Lines.antt of each line.
#![tactic(auto)]
