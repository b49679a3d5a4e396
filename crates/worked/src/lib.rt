// Document 01's "Table of proved examples", and its recording: a table in specs/, and in proofs/ the statement that every row of it holds.
#![tactic(auto)]
