//! Laws about the definitions. Each is the contract of a function that does nothing.
ghost use Rattle.cs_model_serving.specs.ServingLaws.{AreHeads, HeadsStay, HeadsAreWithin, AreFramed, GoOn, Stay, PrefixesAreAnswered, MemoryIsConstant, FaultsAreCounted};

/// What is read of bytes is the head that they are by the grammar of request heads; where none is read they are none.
pub fn heads_are_read()
    ensures { AreHeads }
{}

/// A head is found at one place only, whatever bytes follow it, and ends within the bytes and the limit.
pub fn heads_stay()
    ensures stay { HeadsStay }
    ensures within { HeadsAreWithin }
{}

/// Bytes are answered head by head, in order, until no head is there or the connection is closed.
pub fn heads_are_answered_in_order()
    ensures framed { AreFramed }
    ensures go_on { GoOn }
    ensures stay { Stay }
{}

/// The answers to the first bytes of a connection are the first answers to all its bytes.
pub fn prefixes_are_answered()
    ensures { PrefixesAreAnswered }
{}

/// The memory response, which is sent without memory, is a response like the others.
pub fn memory_response_is_constant()
    ensures { MemoryIsConstant }
{}

/// Read and Changed are told apart by their texts, and no response to a head is counted as either.
pub fn faults_are_counted()
    ensures { FaultsAreCounted }
{}
