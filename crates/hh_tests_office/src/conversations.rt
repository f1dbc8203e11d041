//! What clients send to an office in memory, and what they should get.

use hh_devices::{MemorySink, MemorySource};
use hh_http_serve::{ServeFault, Served, serve_one};
use hh_names::OperatorKey;
use hh_office::Office;
use hh_plain_tables::PlainTables;
use hh_rows::{LeadMinutes, Settings};
use hh_time::london;
use hh_wire::Routes;
use std::alloc::Global;

/// The moment of all connections, 2024-06-29T22:26:40Z.
const MOMENT: i64 = 1_719_700_000;

/// More bytes than any request or reply has.
pub const WHOLE: usize = 9_000;

/// The operator sends the file of two parties.
pub const LOAD: &[u8] = b"POST /files/parties/f1.csv HTTP/1.1\r\nHost: localhost\r\n\
    x-office-key: op-settle001\r\nContent-Length: 74\r\n\r\n\
    party,from,to,key\nGENCO,2024-01-01,,genco0001\nSUPCO,2024-01-01,,supco0001\n";

/// The reply, also if the file comes again.
pub const LOADED: &[u8] =
    b"HTTP/1.1 200 OK\r\nContent-Type: application/json\r\nContent-Length: 22\r\n\
    Connection: close\r\n\r\n{\"applied\":2,\"late\":0}";

/// The operator sends the file of a contract between them.
pub const CONTRACT: &[u8] = b"POST /files/contracts/c1.csv HTTP/1.1\r\nHost: localhost\r\n\
    x-office-key: op-settle001\r\nContent-Length: 78\r\n\r\n\
    reference,seller,buyer,date,period,mwh\nC1,GENCO-P,SUPCO-C,2024-07-01,1,98.000\n";

/// The reply, also if the file comes again.
pub const CONTRACTED: &[u8] =
    b"HTTP/1.1 200 OK\r\nContent-Type: application/json\r\nContent-Length: 22\r\n\
    Connection: close\r\n\r\n{\"applied\":1,\"late\":0}";

/// The seller asks for its contracts.
pub const CONTRACTS: &[u8] =
    b"GET /contracts/GENCO-P/2024-07-01 HTTP/1.1\r\nHost: localhost\r\nx-office-key: genco0001\r\n\r\n";

/// The reply before that file is loaded.
pub const NO_CONTRACT: &[u8] =
    b"HTTP/1.1 200 OK\r\nContent-Type: application/json\r\nContent-Length: 56\r\n\
    Connection: close\r\n\r\n{\"account\":\"GENCO-P\",\"contracts\":[],\"date\":\"2024-07-01\"}";

/// The reply after it is loaded.
pub const ONE_CONTRACT: &[u8] =
    b"HTTP/1.1 200 OK\r\nContent-Type: application/json\r\nContent-Length: 141\r\n\
    Connection: close\r\n\r\n{\"account\":\"GENCO-P\",\"contracts\":[{\"counterparty\":\"SUPCO-C\",\
    \"mwh\":\"98.000\",\"period\":1,\"reference\":\"C1\",\"role\":\"seller\"}],\"date\":\"2024-07-01\"}";

/// One of the parties asks for the balance of its own account.
pub const BALANCE: &[u8] =
    b"GET /balances/SUPCO-C HTTP/1.1\r\nHost: localhost\r\nx-office-key: supco0001\r\n\r\n";

/// The reply, as no run has posted anything.
pub const BALANCED: &[u8] =
    b"HTTP/1.1 200 OK\r\nContent-Type: application/json\r\nContent-Length: 37\r\n\
    Connection: close\r\n\r\n{\"account\":\"SUPCO-C\",\"moved_pence\":0}";

/// The reply before the file is loaded, because nobody has that key.
pub const FORBIDDEN: &[u8] =
    b"HTTP/1.1 403 Forbidden\r\nContent-Type: application/json\r\nContent-Length: 33\r\n\
    Connection: close\r\n\r\n{\"name\":\"Forbidden\",\"refused\":60}";

/// A new office.
fn new_office(alloc: Global) -> Option<Office<'static, PlainTables>> {
    let settings = Settings {
        lead_minutes: LeadMinutes::default(),
        operator_key: OperatorKey::read(b"op-settle001")?,
    };
    Some(Office::new(alloc, PlainTables::new(alloc, settings), london()))
}

/// What a client sends; how many bytes pass at a time in either direction; after how many bytes a read or a
/// write of it fails; and for how many bytes it has room. Then what should come of it: how it is served,
/// how many reads and writes fail, and the bytes that are written.
#[derive(Clone, Copy)]
pub struct Conversation<'a> {
    pub sends: &'a [u8],
    pub piece: usize,
    pub read_fails: usize,
    pub write_fails: usize,
    pub room: usize,
    pub served: Result<Served, ServeFault>,
    pub failed_reads: u64,
    pub failed_writes: u64,
    pub gets: &'a [u8],
}

impl<'a> Conversation<'a> {
    /// A client that sends everything at once, without a failure, and gets a reply.
    pub fn of(sends: &'a [u8], gets: &'a [u8]) -> Conversation<'a> {
        Conversation {
            sends,
            piece: WHOLE,
            read_fails: WHOLE,
            write_fails: WHOLE,
            room: WHOLE,
            served: Ok(Served::Replied),
            failed_reads: 0,
            failed_writes: 0,
            gets,
        }
    }

    /// Whether what should come of it comes.
    fn comes(
        &self,
        alloc: Global,
        routes: &mut Routes,
        office: &mut Office<'_, PlainTables>,
    ) -> bool {
        let source = MemorySource::new(self.sends).in_pieces(self.piece.max(1));
        let mut source = source.failing_after(self.read_fails);
        let Ok(sink) = MemorySink::with_room(alloc, self.room) else {
            return false;
        };
        let mut sink = sink.in_pieces(self.piece).failing_after(self.write_fails);
        let served = served(alloc, routes, office, &mut source, &mut sink);
        served == self.served && self.is_done(&source, &sink)
    }

    /// Whether so many reads and writes failed, and these bytes were written.
    fn is_done(&self, source: &MemorySource<'_>, sink: &MemorySink) -> bool {
        source.failures() == self.failed_reads
            && sink.failures() == self.failed_writes
            && sink.taken() == self.gets
    }
}

/// How a client is served.
fn served(
    alloc: Global,
    routes: &mut Routes,
    office: &mut Office<'_, PlainTables>,
    source: &mut MemorySource<'_>,
    sink: &mut MemorySink,
) -> Result<Served, ServeFault> {
    serve_one(alloc, routes, office, MOMENT, source, sink)
}

/// Whether what should come of these clients comes, one after the other, at a new office.
pub fn all_come(alloc: Global, conversations: &[Conversation<'_>]) -> bool {
    let Some(mut office) = new_office(alloc) else {
        return false;
    };
    let mut routes = Routes::new();
    for conversation in conversations {
        if !conversation.comes(alloc, &mut routes, &mut office) {
            return false;
        }
    }
    true
}
