//! Expressions read by hand: each form of expression is accepted where it is written whole, and refused at its place where it is not.
//! Each is the contract of a function that does nothing. The statements stand in `specs/Examples.antt`.

ghost use Rattle.written_rules.specs.Examples.{IdentityAccepted, TypedIdentityAccepted, OtherDomain, NamedArgument, ImplicitAtTheEnd, BracesRefused, NumberAsType, LambdaApplied, DotCompared, ImplicitLambdaAccepted, OthersAtImplicit, ImplicitLambdaLeftOut, LambdaOfOtherFlag, TooManyArguments, ConsAccepted, ImplicitArgumentLeftOut, ParameterLeftOut, ProjectionAccepted, ProjectionOfNoRecord, RecordAccepted, FieldsNotEachOnce, RecordOfNoRecord, LoopOutOfFuel, LeftOutRefused, DomainLeftOut, ArrowTyped, GroupTyped, SetRefused, ExpandedAccepted, ExpandedTooDeep};

/// The identity is accepted at a function type.
pub fn identity_accepted()
    ensures { IdentityAccepted }
{}

/// So it is where it names its domain.
pub fn typed_identity_accepted()
    ensures { TypedIdentityAccepted }
{}

/// A lambda that names another domain is refused at its place, with its domain on the left and the wanted one on the right.
pub fn other_domain()
    ensures { OtherDomain }
{}

/// A lambda in braces is accepted at an implicit function type.
pub fn implicit_lambda_accepted()
    ensures { ImplicitLambdaAccepted }
{}

/// A name, a type, a record and a head that is no name are refused there, at their places.
pub fn others_at_implicit()
    ensures { OthersAtImplicit }
{}

/// A lambda at an implicit function type is refused at its place.
pub fn implicit_lambda_left_out()
    ensures { ImplicitLambdaLeftOut }
{}

/// A lambda in braces at an explicit function type is refused at its place, with that type.
pub fn lambda_of_other_flag()
    ensures { LambdaOfOtherFlag }
{}

/// An argument too many is refused at its place, with the type that takes none.
pub fn too_many_arguments()
    ensures { TooManyArguments }
{}

/// A constructor takes its parameters from the type at which it is checked; its implicit argument is written in braces.
pub fn cons_accepted()
    ensures { ConsAccepted }
{}

/// An implicit argument may be given by its name; by another name the one before it is left out.
pub fn named_argument()
    ensures { NamedArgument }
{}

/// An implicit argument is left out where no argument follows, and before a projection.
pub fn implicit_at_the_end()
    ensures { ImplicitAtTheEnd }
{}

/// An argument in braces that the type does not take is refused at its braces.
pub fn braces_refused()
    ensures { BracesRefused }
{}

/// A number is no type, and is refused at its place with its type.
pub fn number_as_type()
    ensures { NumberAsType }
{}

/// A lambda at the head of an application is refused.
pub fn lambda_applied()
    ensures { LambdaApplied }
{}

/// A dotted pattern agrees with its value, or is refused at its place.
pub fn dot_compared()
    ensures { DotCompared }
{}

/// Without the implicit argument it is refused at the constructor.
pub fn implicit_argument_left_out()
    ensures { ImplicitArgumentLeftOut }
{}

/// A constructor with parameters is refused at its place where the type is not of its family, and where a type stands.
pub fn parameter_left_out()
    ensures { ParameterLeftOut }
{}

/// The projection of a pair is accepted.
pub fn projection_accepted()
    ensures { ProjectionAccepted }
{}

/// The projection of a number is refused at its dot, with the type of the number.
pub fn projection_of_no_record()
    ensures { ProjectionOfNoRecord }
{}

/// A record is accepted with its fields in any order.
pub fn record_accepted()
    ensures { RecordAccepted }
{}

/// A record that lacks a field, has one twice, or has a name that is no field, is refused at its place.
pub fn fields_not_each_once()
    ensures { FieldsNotEachOnce }
{}

/// A record at a type that is no record is refused at its place, with that type.
pub fn record_of_no_record()
    ensures { RecordOfNoRecord }
{}

/// Where the wanted type has no head form the expression is refused as out of fuel.
pub fn loop_out_of_fuel()
    ensures { LoopOutOfFuel }
{}

/// A hole and `_` are refused at their places.
pub fn left_out_refused()
    ensures { LeftOutRefused }
{}

/// A binder without a type is refused at its place.
pub fn domain_left_out()
    ensures { DomainLeftOut }
{}

/// The codomain of an arrow stands under a variable more.
pub fn arrow_typed()
    ensures { ArrowTyped }
{}

/// A group of names has one type, and the level of a function type is the greatest of its parts'.
pub fn group_typed()
    ensures { GroupTyped }
{}

/// `Set` is refused where a set is wanted, at its place, with `Set1` and `Set`.
pub fn set_refused()
    ensures { SetRefused }
{}

/// A function and its expansion agree to the depth 3.
pub fn expanded_accepted()
    ensures { ExpandedAccepted }
{}

/// To the depth 1 the argument is refused as out of depth.
pub fn expanded_too_deep()
    ensures { ExpandedTooDeep }
{}
