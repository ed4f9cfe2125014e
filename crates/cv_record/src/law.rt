//! Laws of journals as text. The functions do nothing: their clauses are laws.

ghost use Rattle.cv_record.specs.Faults.{OneFirstBad};

/// No text has two first lines that are not of the form.
pub fn one_first_bad()
    ensures { OneFirstBad }
{}
