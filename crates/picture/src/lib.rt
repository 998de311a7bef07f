// The panel as a picture, and the line of one of its points.
#![tactic(auto)]
