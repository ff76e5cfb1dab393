// Facts about changes of the places, each proved where its function is.
ghost use Rattle.exchange.specs.Exchanging.{ExchangeLaw};
ghost use Rattle.exchange.specs.Freeing.{FreeingLaw};
ghost use Rattle.exchange.specs.Takers.{TakersLaw, MarkingLaw};

// The takers of an instance are the instances that have it as an argument.
pub fn takers_stand<V>()
    ensures { TakersLaw V }
{}

// Changed marks leave sound places.
pub fn marking_stands()
    ensures { MarkingLaw }
{}

// An exchange leaves sound places, with the nodes where the theory of tours has them and every instance owed that has to be.
pub fn exchange_stands()
    ensures { ExchangeLaw }
{}

// Freeing a block leaves sound places.
pub fn freeing_stands()
    ensures { FreeingLaw }
{}
