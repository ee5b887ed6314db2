// More volatile fuel, more vapour: what a higher vapour pressure does to a report. Definitions and laws; there is no code here.
#![tactic(auto)]
