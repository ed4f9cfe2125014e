//! Rows of the kinds of both families, `cv_flow` and `cv_calc`: what each starts with, what each action does, needs and gives.
#![tactic(auto)]

#[cfg(test)]
mod calc;
#[cfg(test)]
mod flow;
#[cfg(test)]
mod lines;
#[cfg(test)]
mod shapes;
