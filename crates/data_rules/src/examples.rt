//! Declarations read by hand: each part is accepted where it is of its form, and refused at its place where it is not.
//! Each is the contract of a function that does nothing. The statements stand in `specs/Examples.antt`.

ghost use Rattle.data_rules.specs.Examples.{Naturals, Sigma, Pointed, Stream, WithoutEta, BoxOfSet, Groups, Equality, Vectors, NoSorts};
ghost use Rattle.data_rules.specs.Examples.{ParameterNoType, OwnRecord, EndsInSort, FirstCounts, ParametersSwapped, ParameterShadowed};
ghost use Rattle.data_rules.specs.Examples.{SecondArgumentTooBig, FieldTooBig, SortByStep, ParameterByStep, MostIndices, WithoutEnd, ShapeOutOfFuel};

/// Natural numbers.
pub fn naturals()
    ensures { Naturals }
{}

/// Pairs whose second type depends on the first component, with a named constructor: the second field uses the first one.
pub fn sigma()
    ensures { Sigma }
{}

/// A set with an element: a record of level 1 without a named constructor, in two `field` blocks.
pub fn pointed()
    ensures { Pointed }
{}

/// A coinductive record has no eta.
pub fn stream()
    ensures { Stream }
{}

/// Nor has a record that stands in the type of a field, nor one without fields.
pub fn without_eta()
    ensures { WithoutEta }
{}

/// A data type of level 1, an argument of which is of this level.
pub fn box_of_set()
    ensures { BoxOfSet }
{}

/// Two constructors of one line, and two fields: the type of the second is that of the first, under one variable more.
pub fn groups()
    ensures { Groups }
{}

/// Equality: an implicit parameter, and a second one that depends on it.
pub fn equality()
    ensures { Equality }
{}

/// Vectors: a parameter, an index, and an implicit argument.
pub fn vectors()
    ensures { Vectors }
{}

/// A type that ends in no sort is refused, and so is a function type of a record.
pub fn no_sorts()
    ensures { NoSorts }
{}

/// An expression that is no type is refused inside a parameter, before the parameters and the type after it are read.
pub fn parameter_no_type()
    ensures { ParameterNoType }
{}

/// A record is none yet in the types of its own fields.
pub fn own_record()
    ensures { OwnRecord }
{}

/// A constructor whose type ends in a sort is refused at its name, for its shape and not for its level.
pub fn ends_in_sort()
    ensures { EndsInSort }
{}

/// Of two lines that are refused the first one counts, whichever refusals they have.
pub fn first_counts()
    ensures { FirstCounts }
{}

/// Parameters out of order are refused.
pub fn parameters_swapped()
    ensures { ParametersSwapped }
{}

/// So is a variable that has a parameter's name.
pub fn parameter_shadowed()
    ensures { ParameterShadowed }
{}

/// A second argument of too high a level is refused at the constructor.
pub fn second_argument_too_big()
    ensures { SecondArgumentTooBig }
{}

/// A field of too high a level is refused at its name.
pub fn field_too_big()
    ensures { FieldTooBig }
{}

/// A type whose head form is a sort is accepted, and without fuel for it refused as out of fuel.
pub fn sort_by_step()
    ensures { SortByStep }
{}

/// An argument whose head form is the parameter is accepted.
pub fn parameter_by_step()
    ensures { ParameterByStep }
{}

/// A family may have 2,000 indices, and no more.
pub fn most_indices()
    ensures { MostIndices }
{}

/// A function type without end is refused, of a family and of a constructor.
pub fn without_end()
    ensures { WithoutEnd }
{}

/// A constructor's type whose head form is out of fuel is refused as out of fuel, at the constructor.
pub fn shape_out_of_fuel()
    ensures { ShapeOutOfFuel }
{}
