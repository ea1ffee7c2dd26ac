// Document 01's small files, worked: specs/Worked.antt has their answers, rows, listings and trimmings as one proved table.
#![tactic(auto)]
