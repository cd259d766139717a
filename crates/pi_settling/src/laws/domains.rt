//! Laws of domains by their values.
ghost use Rattle.pi_settling.specs.ValueLaws.{ValuesAreADomain, ValuesAreItsOwn, AllButIsADomain, AllButHasTheOthers};

/// A list of values makes the domain of those of them that a domain can have.
pub fn values_make_a_domain()
    ensures domain { ValuesAreADomain }
    ensures values { ValuesAreItsOwn }
{}

/// All but a domain is the domain of the values that it lacks.
pub fn others_make_a_domain()
    ensures domain { AllButIsADomain }
    ensures values { AllButHasTheOthers }
{}
