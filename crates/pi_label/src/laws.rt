//! Laws of the definitions, each a clause of a function that does nothing.
ghost use Rattle.pi_label.specs.OptionLaws.{CallsGoByOptions};
ghost use Rattle.pi_label.specs.PickLaws.{PlacesLeadToPicks};

/// What a call of `solve` asks for goes by its options as they are read: too large ones are told first, then what the
/// reading tells, and then its variables are looked at.
pub fn calls_go_by_options()
    ensures { CallsGoByOptions }
{}

/// The place that is picked of the domains of items leads to the variable that labelling picks of them, where each is an
/// integer or a variable with a domain of two or more values.
pub fn places_lead_to_picks()
    ensures { PlacesLeadToPicks }
{}
