// What a refusal can be for, each with its number of docs/FORMAT.md.
ghost use Rattle.std.specs.Prelude.{◌≡◌};
ghost use Rattle.model.specs.Faults.{fault_number};

// Why something is refused.
#[derive(Clone, Copy, Debug, PartialEq, Eq)]
pub enum Fault {
    ShortLine,
    UnknownFirstField,
    BadTypedField,
    BadSubgraphField,
    BadTranslationField,
    BadNameLine,
    BadSubgraphLine,
    BadTranslationLine,
    BadSubgraphRelation,
    BadTranslationRelation,
    LongName,
    NamesFull,
    PairsFull,
    BodiesFull,
    WrongBuffer,
    NotARecord,
    OutputShort,
    LongDesc,
    BadKey,
    LongValue,
    TagsFull,
    NotATagList,
}

impl From<Fault> for u32 {
    ghost from_gives = { λ fault number. number ≡ fault_number fault };

    fn from(fault: Fault) -> u32 {
        match fault {
            Fault::ShortLine => 1,
            Fault::UnknownFirstField => 2,
            Fault::BadTypedField => 3,
            Fault::BadSubgraphField => 4,
            Fault::BadTranslationField => 5,
            Fault::BadNameLine => 6,
            Fault::BadSubgraphLine => 7,
            Fault::BadTranslationLine => 8,
            Fault::BadSubgraphRelation => 9,
            Fault::BadTranslationRelation => 10,
            Fault::LongName => 11,
            Fault::NamesFull => 12,
            Fault::PairsFull => 13,
            Fault::BodiesFull => 14,
            Fault::WrongBuffer => 15,
            Fault::NotARecord => 16,
            Fault::OutputShort => 17,
            Fault::LongDesc => 18,
            Fault::BadKey => 19,
            Fault::LongValue => 20,
            Fault::TagsFull => 21,
            Fault::NotATagList => 29,
        }
    }
}
