// The commands of the card, by the standard's names, in the order of 01's table.
#[derive(Clone, Copy)]
pub enum Command {
    GoIdleState,
    AllSendCid,
    SendRelativeAddr,
    SelectCard,
    DeselectCard,
    SendIfCond,
    SendCsd,
    SendCid,
    StopTransmission,
    SendStatus,
    AppCmd,
    GoInactiveState,
    SetBlocklen,
    ReadSingleBlock,
    ReadMultipleBlock,
    SendWriteProt,
    WriteBlock,
    WriteMultipleBlock,
    LockUnlock,
    SetWriteProt,
    ClrWriteProt,
    Erase,
    EraseWrBlkStart,
    EraseWrBlkEnd,
    SdStatus,
    SendNumWrBlocks,
    SendScr,
    SetWrBlkEraseCount,
    SetClrCardDetect,
    SdSendOpCond,
    // SPI mode alone: 58, 59
    ReadOcr,
    CrcOnOff,
    // no row of the table
    Unknown,
}

// Columns of the table.

// A plain row; 55; a row that an index has after 55.
#[derive(Clone, Copy)]
pub enum Kind {
    Plain,
    AppCmd,
    Application,
}

// What the upper half of the argument is: no RCA; the RCA of the card that is meant; for the two rows of 7 the card's own RCA,
// and another.
#[derive(Clone, Copy)]
pub enum Rca {
    Unused,
    Addressed,
    Own,
    Other,
}
