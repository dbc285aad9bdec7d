// The law of service, for whoever wants it as a fact.
ghost use Rattle.service.specs.Law.{ServiceLaw};

// Does nothing; its contract is the law, proved.
pub fn service_law()
    ensures { ServiceLaw }
{}
