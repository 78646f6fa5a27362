//! Keeps the analyses of the documents that were opened, changed or asked about most recently.
//!
//! The contracts only limit which analyses may be kept after a call:
//! - `AddsNoAnalysis`: only analyses that were kept before the call;
//! - `KeepsOnlyOtherAnalyses`: only analyses of other documents that were kept before the call;
//! - `AddsOnlyThisAnalysis`: only the added analysis, and analyses that were kept before the call.
//!
//! So a call may drop any number of analyses. `put` drops the least recently used analyses if the
//! total size is too large.

ghost use Rattle.std.specs.Prelude.{◌≡◌, ◌∷◌, ◌≤◌, [], IfSome, IfOk};
ghost use Rattle.ob0_session_documents.specs.KeptAnalyses.{KeepsAnalysis, AddsOnlyThisAnalysis, AddsNoAnalysis, KeepsOnlyOtherAnalyses};

use lru::LruCache;
use ob0_analysis::Analysis;
use std::alloc::{AllocError, Global};

/// The greatest sum of the sizes of the kept analyses (`size_in_cache`), in bytes. A size counts
/// bytes of text and not all memory. About four analyses of the longest texts fit. An analysis
/// whose own size is greater is also kept, but then no other analysis is kept.
const MAX_TOTAL_ANALYSIS_BYTES: usize = 4_198_400;

/// The number of bytes that are counted for each analysis in addition to its uri and its
/// `size_in_bytes`. Because of this number, the number of kept analyses is limited even if their
/// texts are empty.
const OVERHEAD_BYTES_PER_ANALYSIS: usize = 1_024;

/// A cache of analyses, which are found by the uris of their documents. Adding an analysis may drop
/// others.
#[derive(Drop)]
pub struct AnalysisCache {
    alloc: Global,
    /// The cache, or None until the first analysis is added. The cache is made only then, because
    /// making it allocates memory.
    by_uri: Option<LruCache<String, Analysis>>,
    /// The sum of `size_in_cache` over all analyses in the cache. After a failed allocation, this
    /// field may be larger than the sum.
    size_in_bytes: usize,
}

impl AnalysisCache {
    /// Returns an empty cache.
    pub fn new(alloc: Global) -> AnalysisCache
        ensures { (uri : _) (text : _) → KeepsAnalysis result uri text → ⊥ }
    {
        AnalysisCache {
            alloc,
            by_uri: None,
            size_in_bytes: 0,
        }
    }

    /// Removes the analysis of a document and returns it. Returns None if no analysis of this
    /// document is kept.
    pub fn take(&mut self, uri: &str) -> Option<Analysis>
        ensures found { IfSome result (KeepsAnalysis self.old uri.now) }
        ensures others { KeepsOnlyOtherAnalyses self.old uri.now self.new }
    {
        let by_uri = self.by_uri.as_mut()?;
        // The proof needs the contract of this call.
        let _count = by_uri.len();
        let analysis = by_uri.pop(uri)?;
        self.size_in_bytes = self
            .size_in_bytes
            .saturating_sub(size_in_cache(uri, &analysis));
        Some(analysis)
    }

    /// Returns the analysis of a document, or None if no analysis of this document is kept.
    pub fn get(&self, uri: &str) -> Option<&Analysis>
        ensures { IfSome result (λ a. KeepsAnalysis self.now uri.now a.now) }
    {
        let by_uri = self.by_uri.as_ref()?;
        by_uri.peek(uri)
    }

    /// Marks the analysis of a document as the most recently used. If no analysis of the document
    /// is kept, does nothing.
    pub fn promote(&mut self, uri: &str)
        ensures { AddsNoAnalysis self.old self.new }
    {
        if let Some(by_uri) = &mut self.by_uri {
            by_uri.promote(uri);
        }
    }

    /// Adds the analysis of a document to the cache. If the total size is too large, the least
    /// recently used analyses are dropped. If `analysis` by itself is larger than
    /// [`MAX_TOTAL_ANALYSIS_BYTES`], all other analyses are dropped.
    pub fn put(&mut self, uri: &str, analysis: Analysis) -> Result<(), AllocError>
        ensures { AddsOnlyThisAnalysis self.old uri.now analysis self.new }
    {
        self.add_bytes_and_evict(size_in_cache(uri, &analysis));
        self.insert_without_evicting(uri, analysis)
    }

    /// Adds the analysis of a document to the cache. If there is no cache yet, makes one.
    fn insert_without_evicting(&mut self, uri: &str, analysis: Analysis) -> Result<(), AllocError>
        ensures { AddsOnlyThisAnalysis self.old uri.now analysis self.new }
    {
        let key = String::from_str(self.alloc, uri)?;
        match &mut self.by_uri {
            Some(by_uri) => {
                by_uri.put(key, analysis)?;
            }
            None => self.by_uri = Some(cache_with_analysis(self.alloc, key, analysis)?),
        }
        Ok(())
    }

    /// Adds this many bytes to the total size. Then drops the least recently used analyses until
    /// the total size is at most [`MAX_TOTAL_ANALYSIS_BYTES`] or no analysis is left.
    fn add_bytes_and_evict(&mut self, size_in_bytes: usize)
        ensures { AddsNoAnalysis self.old self.new }
    {
        let mut counted = self.size_in_bytes.saturating_add(size_in_bytes);
        while counted > MAX_TOTAL_ANALYSIS_BYTES {
            let Some((oldest, analysis)) = self.remove_least_recently_used() else {
                break;
            };
            counted = counted.saturating_sub(size_in_cache(oldest.as_str(), &analysis));
        }
        self.size_in_bytes = counted;
    }

    /// Removes the least recently used analysis and returns it with its uri. Returns None if no
    /// analysis is kept.
    fn remove_least_recently_used(&mut self) -> Option<(String, Analysis)>
        ensures { AddsNoAnalysis self.old self.new }
    {
        let by_uri = self.by_uri.as_mut()?;
        by_uri.pop_lru()
    }
}

/// Returns the number of bytes that are counted for an analysis. The bytes of the uri are included,
/// because the cache stores a copy of the uri.
fn size_in_cache(uri: &str, analysis: &Analysis) -> usize
    ensures { OVERHEAD_BYTES_PER_ANALYSIS ≤ result }
{
    analysis
        .size_in_bytes()
        .saturating_add(uri.len())
        .saturating_add(OVERHEAD_BYTES_PER_ANALYSIS)
}

/// Returns a cache that contains one analysis.
fn cache_with_analysis(
    alloc: Global,
    uri: String,
    analysis: Analysis,
) -> Result<LruCache<String, Analysis>, AllocError>
    ensures { IfOk result (λ c. c.entries ≡ (uri, analysis) ∷ []) }
{
    let mut cache = LruCache::unbounded(alloc)?;
    cache.put(uri, analysis)?;
    Ok(cache)
}
