//! The kinds of record that the CIF End User Specification defines.

/// The kinds of record, by their names in the CIF End User Specification.
#[derive(Clone, Copy, PartialEq, Eq, Debug)]
pub enum Kind {
    /// HD, the header of a file.
    Header,
    /// TI, a TIPLOC insert.
    TiplocInsert,
    /// TA, a TIPLOC amendment.
    TiplocAmend,
    /// TD, a TIPLOC deletion.
    TiplocDelete,
    /// AA, an association.
    Association,
    /// BS, a basic schedule.
    BasicSchedule,
    /// BX, the extra details of a basic schedule.
    ExtraDetails,
    /// LO, the origin of a schedule.
    OriginLocation,
    /// LI, an intermediate location.
    IntermediateLocation,
    /// LT, the terminating location.
    TerminatingLocation,
    /// CR, a change en route.
    ChangeEnRoute,
    /// ZZ, the trailer of a file.
    Trailer,
}
