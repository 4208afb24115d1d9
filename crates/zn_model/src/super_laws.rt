// Laws of the super block, each the contract of a function that does nothing.
ghost use Rattle.zn_model.specs.SuperLaws.{ExampleIsEncoded, ExampleIsDecoded, ZerosAreRefused, LastByteIsCompared, VersionIsRead, LabelIsRead, FeaturesAreRead, PermissionsAreRead, ZerosAreRead, EncodedLength, EncodedFields, FieldsAreEncoded, EncodedDecodes, DecodedIsEncoded, MagicIsFirst, CopiesAreNext, VersionIsNext, FieldsAreLast, OthersAreRead};

/// A super block's block has 4,096 bytes and each field at its place, and no other block has these fields.
pub fn blocks_have_their_fields()
    ensures bytes { EncodedLength }
    ensures fields { EncodedFields }
    ensures only { FieldsAreEncoded }
{}

/// Two copies of a super block's block are read as that super block.
pub fn encoded_decodes()
    ensures { EncodedDecodes }
{}

/// Two blocks that are read as a super block are copies of its block.
pub fn decoded_is_encoded()
    ensures { DecodedIsEncoded }
{}

/// Two blocks are refused for the first of these reasons that there is, and are read where there is none.
pub fn refusals_have_their_order()
    ensures magic { MagicIsFirst }
    ensures copies { CopiesAreNext }
    ensures version { VersionIsNext }
    ensures fields { FieldsAreLast }
    ensures others { OthersAreRead }
{}

/// An example of a super block, its block, and that it is read back.
pub fn example_is_read_back()
    ensures encoded { ExampleIsEncoded }
    ensures decoded { ExampleIsDecoded }
{}

/// Each reason to refuse two blocks, with an example.
pub fn refusals_are_told()
    ensures magic { ZerosAreRefused }
    ensures copies { LastByteIsCompared }
    ensures version { VersionIsRead }
    ensures label { LabelIsRead }
    ensures features { FeaturesAreRead }
    ensures permissions { PermissionsAreRead }
    ensures rest { ZerosAreRead }
{}
